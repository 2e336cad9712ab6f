ghost use Rattle.std.specs.Prelude.{◌≡◌};
ghost use Rattle.instance_forms.specs.Forms.{form_of};

/// A form of instance files.
#[derive(Clone, Copy, Debug, PartialEq, Eq)]
pub enum FileForm {
    /// The warehouse files of the OR-Library, with their capacities.
    Cap,
    /// The same files without their capacities.
    Uncap,
    /// The simple format of UflLib.
    Ufl,
    /// The p-median networks of the OR-Library.
    Pmed,
    /// The suite's own form.
    Own,
}

impl FileForm {
    /// The form that a word names.
    pub fn of(word: &str) -> Option<FileForm>
        ensures { result ≡ form_of word.now }
    {
        match word {
            "cap" => Some(FileForm::Cap),
            "uncap" => Some(FileForm::Uncap),
            "ufl" => Some(FileForm::Ufl),
            "pmed" => Some(FileForm::Pmed),
            "own" => Some(FileForm::Own),
            _ => None,
        }
    }
}
