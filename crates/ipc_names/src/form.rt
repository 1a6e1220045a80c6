//! What has the form of a name, and how long a name may be.

ghost use Rattle.std.specs.Prelude.{◌≡◌, ◌==◌, ◌||◌};
ghost use Rattle.std.specs.Result.{result_err};
ghost use Rattle.std.specs.List.{list_any};
ghost use Rattle.ipc_terms.specs.Names.{has_name_form, name_limit, is_long_name};
ghost use Rattle.ipc_names.specs.Directory.{name_fault};

use ipc_terms::{Family, Rule};

/// Whether these bytes are a slash and then one or more bytes, none of them a slash or zero, and
/// neither `/.` nor `/..` (`mq_overview(7)`, `sem_overview(7)`). Their number isn't looked at.
pub fn has_form(name: &[u8]) -> bool
    ensures { result ≡ has_name_form name.now }
{
    match name {
        [] => false,
        [first, rest @ ..] => {
            *first == b'/'
                && rest.len() > 0
                && !has_bad_byte(rest)
                && rest != b".".as_slice()
                && rest != b"..".as_slice()
        }
    }
}

fn has_bad_byte(bytes: &[u8]) -> bool
    ensures { result ≡ list_any (λ b. (b == 47) || (b == 0)) bytes.now }
{
    bytes.iter().any(|b| *b == b'/' || *b == 0)
}

/// Whether these are more bytes than a name of the family may have: a slash and 255 bytes for queues,
/// a slash and 251 for semaphores. The numbers are those of `mq_overview(7)` and `sem_overview(7)`;
/// that they are bytes, and that the slash stands beside them, is this server's own. Their form
/// isn't looked at.
pub fn is_long(family: Family, name: &[u8]) -> bool
    ensures { result ≡ is_long_name family name.now }
{
    name.len() > limit_of(family)
}

fn limit_of(family: Family) -> usize
    ensures { result ≡ name_limit family }
{
    match family {
        Family::Mq => 256,
        Family::Sem => 252,
    }
}

/// Whether these bytes are a name of the family. The `Err` is `NameForm` or `NameLong`; at a name
/// with both faults it is `NameForm`.
pub fn check(family: Family, name: &[u8]) -> Result<(), Rule>
    ensures { result_err result ≡ name_fault family name.now }
{
    if !has_form(name) {
        Err(Rule::NameForm)
    } else if is_long(family, name) {
        Err(Rule::NameLong)
    } else {
        Ok(())
    }
}
