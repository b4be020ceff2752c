//! The arguments in the order in which a command takes them.

ghost use Rattle.std.specs.Prelude.{◌≡◌, ◌++◌, IfOk, string_bytes, map};
ghost use Rattle.tl_arguments.specs.declared.order.Side.{Side};
ghost use Rattle.tl_arguments.specs.declared.role.Role.TheVariants.{Plain};
ghost use Rattle.tl_arguments.specs.Arranged.{arranged, side_words, is_of};

use crate::names::all_named;
use crate::role::Role;
use std::alloc::{AllocError, Global};

/// How many arguments that are no options a command has at least, if it takes options at all: its
/// word, its number, and two names.
pub const FEWEST_PLAIN: usize = 4;

/// One of the two kinds of arguments.
#[derive(Clone, Copy)]
pub enum Side {
    /// Those that are no options.
    Names,
    /// The options and their values.
    Options,
}

impl Side {
    /// Whether an argument for this belongs to it.
    fn has(self, role: Role) -> bool
        ensures { result ≡ is_of self role }
    {
        match self {
            Side::Names => role.is_name(),
            Side::Options => role.is_option(),
        }
    }

    /// Its arguments, in their order.
    pub(crate) fn pick(self, alloc: Global, words: &[String]) -> Result<Vec<String>, AllocError>
        ensures { IfOk result (λ picked. map string_bytes picked.items
            ≡ side_words self Plain (map string_bytes words.now)) }
    {
        let mut picked = Vec::new(alloc);
        let mut role = Role::Plain;
        for word in words {
            role = role.after(word.as_str());
            if self.has(role) {
                picked.push(String::from_str(alloc, word.as_str())?)?;
            }
        }
        Ok(picked)
    }
}

/// The arguments as a command takes them: its word, its number and the names of its files, as
/// `names` spells them, and then its options. Options that stand with too few names come first,
/// where no command takes them, so that none of them is taken for a name. The error says that memory
/// ran out.
pub fn arrange(alloc: Global, words: &[String]) -> Result<Vec<String>, AllocError>
    ensures { IfOk result (λ arranged_words. map string_bytes arranged_words.items
        ≡ arranged (map string_bytes words.now)) }
{
    let plain = Side::Names.pick(alloc, words)?;
    let names = all_named(alloc, plain.as_slice())?;
    let options = Side::Options.pick(alloc, words)?;
    if names.len() < FEWEST_PLAIN {
        joined(options, names)
    } else {
        joined(names, options)
    }
}

/// The first and then the second.
fn joined(first: Vec<String>, second: Vec<String>) -> Result<Vec<String>, AllocError>
    ensures { IfOk result (λ both. both.items ≡ first.items ++ second.items) }
{
    let mut both = first;
    let mut rest = second;
    both.append(&mut rest)?;
    Ok(both)
}
