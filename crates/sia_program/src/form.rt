//! The forms that the words of a command may have, and which of their words name files.
ghost use Rattle.std.specs.Prelude.{◌≡◌};
ghost use Rattle.sia_program.specs.Form.{form_of, files_of};

use crate::commands::ledger::{LEDGER_FILES, ledger_form};
use crate::commands::prove::{PROVE_FILES, prove_form};
use crate::commands::root::{ROOT_FILES, root_form};
use crate::commands::show::{SHOW_FILES, show_form};
use sia_encoding::Blob;

/// A command and what its words name.
#[derive(Clone, Copy)]
pub enum Form {
    /// `ledger CONFIG FEED`
    Ledger,
    /// `root FILE`
    Root,
    /// `prove FILE A B`
    Prove {
        /// The first leaf of the range.
        start: u64,
        /// The leaf behind the last one of the range.
        end: u64,
    },
    /// `show transaction FILE`
    ShowTransaction,
    /// `show block FILE`
    ShowBlock,
}

/// Which words of a form name files, by their places behind the program's name: the command's own word has place 0.
#[derive(Clone, Copy)]
pub struct FilePlaces {
    /// The word that names the configuration, if the form has one.
    pub config: Option<usize>,
    /// The word that names the feed or the file that is read, if the form has one.
    pub input: Option<usize>,
}

impl Form {
    /// Which of its words name files.
    pub fn files(&self) -> FilePlaces
        ensures { result ≡ files_of self.now }
    {
        match self {
            Form::Ledger => LEDGER_FILES,
            Form::Root => ROOT_FILES,
            Form::Prove { start: _, end: _ } => PROVE_FILES,
            Form::ShowTransaction => SHOW_FILES,
            Form::ShowBlock => SHOW_FILES,
        }
    }
}

/// The form of the words behind the program's name, if they have one.
pub fn read_form(words: &[Blob]) -> Option<Form>
    ensures { result ≡ form_of words.now }
{
    ledger_form(words)
        .or(root_form(words))
        .or(prove_form(words))
        .or(show_form(words))
}
