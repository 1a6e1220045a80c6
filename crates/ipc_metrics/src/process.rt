//! What Linux tells of a process in /proc.

ghost use Rattle.std.specs.Prelude.{◌≡◌, IfSome};
ghost use Rattle.ipc_metrics.specs.Processes.{AreTicks, IsBehindBracket, IsNumber, behind_spaces, word_behind};

/// The processor time in ticks, in user and in system mode, of a text of /proc/self/stat: its fields 14 and 15. They are counted
/// behind the last `)`, since the command's name, field 2, may have blanks and brackets. That a text as Linux writes it isn't
/// `None`, no clause says.
pub fn processor_ticks(stat: &str) -> Option<u64>
    ensures { IfSome result (AreTicks stat.now) }
{
    let behind = behind_bracket(stat)?;
    let user = number_behind(behind, 12)?;
    let system = number_behind(behind, 13)?;
    user.checked_add(system)
}

/// The pages of memory that are resident, of a text of /proc/self/statm: its second field. That a text as Linux writes it isn't
/// `None`, no clause says.
pub fn resident_pages(statm: &str) -> Option<u64>
    ensures { IfSome result (IsNumber (word_behind 1 statm.now)) }
{
    number_behind(statm, 1)
}

/// The text behind the last `)`.
fn behind_bracket(text: &str) -> Option<&str>
    ensures { IfSome result (λ behind. IsBehindBracket text.now behind.now) }
{
    match text.rsplit_once(')') {
        Some((_, behind)) => Some(behind),
        None => None,
    }
}

/// The number behind so many spaces and before a further one.
fn number_behind(text: &str, spaces: u64) -> Option<u64>
    ensures { IfSome result (IsNumber (word_behind spaces text.now)) }
{
    let (word, _) = text_behind(text, spaces)?.split_once(' ')?;
    word.parse::<u64>().ok()
}

/// The text behind so many spaces.
fn text_behind(text: &str, spaces: u64) -> Option<&str>
    ensures { IfSome result (λ behind. behind.now ≡ behind_spaces spaces text.now) }
{
    let mut rest = text;
    let mut passed = 0;
    while passed < spaces {
        let (_, behind) = rest.split_once(' ')?;
        rest = behind;
        passed += 1;
    }
    Some(rest)
}
