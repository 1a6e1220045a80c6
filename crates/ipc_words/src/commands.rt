//! The table of commands: the word of each, and what stands behind it.

ghost use Rattle.std.specs.Prelude.{◌≡◌, IfSome, option_map};
ghost use Rattle.ipc_words.specs.Grammar.{form_of_op, form_of_row, form_of_word};
ghost use Rattle.ipc_words.specs.Placing.{FindsArguments, is_flag_of, is_option_of, is_optional, is_spelled, is_value, is_valued, name_of};

use crate::commands::Argument::{Flag, Optional, Required, Valued};
use ipc_terms::CallOp;

/// What may stand behind a command's word, by its name.
#[derive(Clone, Copy, Drop)]
pub enum Argument {
    /// A value that must be given.
    Required(&'static str),
    /// A value that may be left out.
    Optional(&'static str),
    /// `--NAME`.
    Flag(&'static str),
    /// `--NAME` and a value.
    Valued(&'static str),
}

impl Argument {
    pub fn name(&self) -> &'static str
        ensures { result.now ≡ name_of self.now }
    {
        match self {
            Argument::Required(name)
            | Argument::Optional(name)
            | Argument::Flag(name)
            | Argument::Valued(name) => name,
        }
    }

    /// Whether a word alone stands for the argument.
    pub fn is_value(&self) -> bool
        ensures { result ≡ is_value self.now }
    {
        matches!(self, Argument::Required(_) | Argument::Optional(_))
    }

    /// Whether the argument may be left out.
    pub fn is_optional(&self) -> bool
        ensures { result ≡ is_optional self.now }
    {
        !matches!(self, Argument::Required(_))
    }

    /// Whether a value follows the argument's own word.
    pub fn is_valued(&self) -> bool
        ensures { result ≡ is_valued self.now }
    {
        matches!(self, Argument::Valued(_))
    }

    /// Whether the argument is the flag of this name.
    pub fn is_flag_of(&self, name: &str) -> bool
        ensures { result ≡ is_flag_of name.now self.now }
    {
        match self {
            Argument::Flag(flag) => *flag == name,
            _ => false,
        }
    }

    /// Whether the argument's own word is this.
    pub fn is_option_of(&self, word: &str) -> bool
        ensures { result ≡ is_option_of word.now self.now }
    {
        match self {
            Argument::Flag(name) | Argument::Valued(name) => is_spelled(word, name),
            _ => false,
        }
    }
}

/// Whether the word is the name behind two hyphens.
pub fn is_spelled(word: &str, name: &str) -> bool
    ensures { result ≡ is_spelled word.now name.now }
{
    match word.as_bytes().strip_prefix(b"--") {
        Some(spelled) => spelled == name.as_bytes(),
        None => false,
    }
}

/// A command's word, the call that it asks for, and what stands behind it.
#[derive(Drop)]
pub struct Form {
    pub word: &'static str,
    pub op: CallOp,
    pub arguments: &'static [Argument],
}

/// All commands.
pub static FORMS: [Form; 27] = [
    Form {
        word: "umask",
        op: CallOp::Umask,
        arguments: &[Required("octal")],
    },
    Form {
        word: "mq-open",
        op: CallOp::MqOpen,
        arguments: &[
            Required("name"),
            Required("access"),
            Flag("create"),
            Flag("excl"),
            Flag("nonblock"),
            Valued("mode"),
            Valued("maxmsg"),
            Valued("msgsize"),
        ],
    },
    Form {
        word: "mq-close",
        op: CallOp::MqClose,
        arguments: &[Required("d")],
    },
    Form {
        word: "mq-send",
        op: CallOp::MqSend,
        arguments: &[Required("d"), Required("prio"), Required("bytes")],
    },
    Form {
        word: "mq-receive",
        op: CallOp::MqReceive,
        arguments: &[Required("d"), Required("len")],
    },
    Form {
        word: "mq-timedsend",
        op: CallOp::MqTimedSend,
        arguments: &[
            Required("d"),
            Required("prio"),
            Required("deadline"),
            Required("bytes"),
        ],
    },
    Form {
        word: "mq-timedreceive",
        op: CallOp::MqTimedReceive,
        arguments: &[Required("d"), Required("len"), Required("deadline")],
    },
    Form {
        word: "mq-getattr",
        op: CallOp::MqGetattr,
        arguments: &[Required("d")],
    },
    Form {
        word: "mq-setattr",
        op: CallOp::MqSetattr,
        arguments: &[Required("d"), Required("how")],
    },
    Form {
        word: "mq-notify",
        op: CallOp::MqNotify,
        arguments: &[Required("d"), Required("how")],
    },
    Form {
        word: "mq-give",
        op: CallOp::MqGive,
        arguments: &[Required("d"), Required("sid")],
    },
    Form {
        word: "mq-unlink",
        op: CallOp::MqUnlink,
        arguments: &[Required("name")],
    },
    Form {
        word: "sem-open",
        op: CallOp::SemOpen,
        arguments: &[
            Required("name"),
            Flag("create"),
            Flag("excl"),
            Valued("mode"),
            Valued("value"),
        ],
    },
    Form {
        word: "sem-close",
        op: CallOp::SemClose,
        arguments: &[Required("d")],
    },
    Form {
        word: "sem-unlink",
        op: CallOp::SemUnlink,
        arguments: &[Required("name")],
    },
    Form {
        word: "sem-post",
        op: CallOp::SemPost,
        arguments: &[Required("d")],
    },
    Form {
        word: "sem-wait",
        op: CallOp::SemWait,
        arguments: &[Required("d")],
    },
    Form {
        word: "sem-trywait",
        op: CallOp::SemTryWait,
        arguments: &[Required("d")],
    },
    Form {
        word: "sem-timedwait",
        op: CallOp::SemTimedWait,
        arguments: &[Required("d"), Required("deadline")],
    },
    Form {
        word: "sem-getvalue",
        op: CallOp::SemGetvalue,
        arguments: &[Required("d")],
    },
    Form {
        word: "ls",
        op: CallOp::ListNames,
        arguments: &[Required("family"), Required("start"), Required("count")],
    },
    Form {
        word: "stat",
        op: CallOp::StatName,
        arguments: &[Required("family"), Optional("name")],
    },
    Form {
        word: "chmod",
        op: CallOp::Chmod,
        arguments: &[Required("octal"), Required("family"), Optional("name")],
    },
    Form {
        word: "chown",
        op: CallOp::Chown,
        arguments: &[
            Required("uid"),
            Required("gid"),
            Required("family"),
            Optional("name"),
        ],
    },
    Form {
        word: "set-limit",
        op: CallOp::SetLimit,
        arguments: &[Required("uid"), Required("bytes")],
    },
    Form {
        word: "interrupt",
        op: CallOp::Interrupt,
        arguments: &[],
    },
    Form {
        word: "audit",
        op: CallOp::Audit,
        arguments: &[Required("start"), Required("count")],
    },
];

/// The command of this word.
pub fn form_of_word(word: &str) -> Option<&'static Form>
    ensures form { option_map (λ form. form_of_row form.now) result ≡ form_of_word word.now }
    ensures arguments { IfSome result (λ form. FindsArguments (form_of_row form.now)) }
{
    FORMS.iter().find(|form| form.word == word)
}

/// The command whose call has this number.
pub fn form_of_op(op: u8) -> Option<&'static Form>
    ensures { option_map (λ form. form_of_row form.now) result ≡ form_of_op op }
{
    FORMS.iter().find(move |form| form.op.number() == op)
}
