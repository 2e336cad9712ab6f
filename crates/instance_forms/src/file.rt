ghost use Rattle.std.specs.Prelude.{◌≡◌, IfSome};
ghost use Rattle.std.specs.Option.{option_map};
ghost use Rattle.instance_store.specs.Small.{IsSmall};
ghost use Rattle.instance_forms.specs.Forms.{capacity_of, file_of, file_in};

use crate::form::FileForm;
use fixed_cost::Amount;

/// The file of an instance.
#[derive(Clone, Copy)]
pub struct InstanceFile<'a> {
    pub form: FileForm,
    pub name: &'a str,
    /// The amount of the option `capacity`, in millionths, where it is there.
    pub given: Option<u64>,
}

impl<'a> InstanceFile<'a> {
    /// The file that a form and a name are words for. A capacity may be given with the form `cap` alone.
    pub fn of(form: &str, name: &'a str, given: Option<u64>) -> Option<InstanceFile<'a>>
        ensures named { option_map file_in result ≡ file_of form.now name.now given }
        ensures small { IsSmall given → IfSome result (λ file. IsSmall file.given) }
    {
        let form = FileForm::of(form)?;
        if given.is_some() && !matches!(form, FileForm::Cap) {
            return None;
        }
        Some(InstanceFile { form, name, given })
    }
}

/// The capacity that an option `capacity=A` gives, in millionths, if it is one.
pub fn capacity(option: &str) -> Option<u64>
    ensures value { result ≡ capacity_of option.now }
    ensures small { IsSmall result }
{
    let word = option.as_bytes().strip_prefix(b"capacity=")?;
    match Amount::read(word) {
        Ok(amount) => Some(amount.micro()),
        Err(_) => None,
    }
}
