//! The names of files among the arguments.

ghost use Rattle.std.specs.Prelude.{◌≡◌, ◌≢◌, ◌↔◌, ◌<◌, ◌≤◌, [], map, length, take, drop, string_bytes, IsTrue};
ghost use Rattle.std.specs.List.{All};
ghost use Rattle.tl_command.specs.Ask.{IsDashed, IsNoOption, AreNames};
ghost use Rattle.tl_command.specs.inner.Parts.{IsDashedAtFirst};

/// Whether the argument begins as an option does.
fn is_dashed(word: &str) -> bool
    ensures { IsTrue result ↔ IsDashed word.now }
{
    word.as_bytes().starts_with(b"--")
}

/// How many arguments stand before the first that begins as an option does, up to `most`.
pub(crate) fn plain_count(words: &[String], most: usize) -> usize
    ensures within { result ≤ length words.now }
    ensures at_most { result ≤ most }
    ensures plain { All IsNoOption (take result (map string_bytes words.now)) }
    ensures dashed { result < most → IsDashedAtFirst (drop result (map string_bytes words.now)) }
{
    let mut count = 0;
    while count < most && count < words.len() {
        if is_dashed(words[count].as_str()) {
            return count;
        }
        count += 1;
    }
    count
}

/// Whether no name is empty, and no two are the same.
pub(crate) fn are_names(names: &[String]) -> bool
    ensures { IsTrue result ↔ AreNames (map string_bytes names.now) }
{
    let mut rest = names;
    while let Some((name, later)) = rest.split_first() {
        if !is_name(name.as_str(), later) {
            return false;
        }
        rest = later;
    }
    true
}

/// Whether the name is not empty, and not one of the others.
fn is_name(name: &str, others: &[String]) -> bool
    ensures { IsTrue result ↔ ((name.now ≢ []) × All (λ other. name.now ≢ other) (map string_bytes others.now)) }
{
    !name.is_empty() && is_other(name, others)
}

/// Whether the name is not one of the others.
fn is_other(name: &str, others: &[String]) -> bool
    ensures { IsTrue result ↔ All (λ other. name.now ≢ other) (map string_bytes others.now) }
{
    for other in others {
        if is_same(name, other.as_str()) {
            return false;
        }
    }
    true
}

/// Whether the names are the same.
fn is_same(one: &str, other: &str) -> bool
    ensures { IsTrue result ↔ (one.now ≡ other.now) }
{
    one == other
}
