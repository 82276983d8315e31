//! What a text is read as.

ghost use Rattle.std.specs.Prelude.{◌≡◌};
ghost use Rattle.tests_texts.specs.Texts.{form_named};

/// What a text is read as.
#[derive(Clone, Copy, PartialEq, Eq)]
pub enum Form {
    /// A script, of which all is printed.
    Script,
    /// A transcript, of which all is printed.
    Transcript,
    /// A transcript, of which the lines of its replies are printed.
    Replies,
}

impl Form {
    /// The form that a word names.
    pub fn named(word: &str) -> Option<Form>
        ensures { result ≡ form_named word.now }
    {
        match word {
            "script" => Some(Form::Script),
            "transcript" => Some(Form::Transcript),
            "replies" => Some(Form::Replies),
            _ => None,
        }
    }
}
