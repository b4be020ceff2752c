//! The names of the files among the arguments, by their places.

ghost use Rattle.std.specs.Prelude.{◌≡◌, ◌≤◌, length, option_map};
ghost use Rattle.tl_command.specs.Ask.{asked_by};
ghost use Rattle.tl_program.specs.Asks.{input_name, page_name, certificate_name, judged_name};

use tl_command::Ask;

/// The file that is read.
pub fn input_name<'a>(ask: &Ask<'a>) -> &'a str
    requires { 2 ≤ length ask.now.names.now }
    ensures { result.now ≡ input_name (asked_by ask.now) }
{
    ask.names[0].as_str()
}

/// The file that takes the page.
pub fn page_name<'a>(ask: &Ask<'a>) -> &'a str
    requires { 2 ≤ length ask.now.names.now }
    ensures { result.now ≡ page_name (asked_by ask.now) }
{
    ask.names[1].as_str()
}

/// The file that takes the certificate, where it is named.
pub fn certificate_name<'a>(ask: &Ask<'a>) -> Option<&'a str>
    ensures { option_map (λ name. name.now) result ≡ certificate_name (asked_by ask.now) }
{
    match ask.names.get(2) {
        Some(name) => Some(name.as_str()),
        None => None,
    }
}

/// The file with the certificate that is checked.
pub fn judged_name<'a>(ask: &Ask<'a>) -> &'a str
    requires { 2 ≤ length ask.now.names.now }
    ensures { result.now ≡ judged_name (asked_by ask.now) }
{
    ask.names[1].as_str()
}
