use crate::NameError;
use base_types::Text;
use std::alloc::{AllocError, Global};
use std::marker::{Model, PhantomData};

/// A form that the names of one kind have.
pub trait Form {
    ghost use Rattle.std.specs.Prelude.{◌≡◌, ℕ, List, Bool};

    ghost is_of_form: { List ℕ → Bool };

    fn has_form(text: &str) -> bool
        ensures { result ≡ is_of_form text.now };
}

/// A text of a form, which contracts see as its bytes.
#[derive(Debug, Drop)]
pub struct Name<F: Form> {
    text: Text,
    form: PhantomData<F>,
}

impl<F: Form> Model for Name<F> {
    ghost use Rattle.std.specs.Prelude.{◌≡◌, ℕ, List, true};

    ghost Value = { List ℕ };

    ghost view = { λ name. name.text };

    ghost invariant = { λ name. F.is_of_form name.text ≡ true };
}

impl<F: Form> Name<F> {
    ghost use Rattle.std.specs.Prelude.{◌≡◌, true, IfOk};
    ghost use Rattle.base_types.specs.Forms.{passing};
    ghost use Rattle.iam_names.specs.Reads.{ReadsName};

    /// Form comes exactly where the text isn't of the form.
    pub fn read(alloc: Global, text: &str) -> Result<Self, NameError>
        ensures { ReadsName result (passing F.is_of_form text.now) }
    {
        if !F::has_form(text) {
            return Err(NameError::Form);
        }
        let text = Text::copy_of(alloc, text)?;
        Ok(Name {
            text,
            form: PhantomData,
        })
    }

    /// The name that a text of the form is.
    pub(crate) fn of_text(text: Text) -> Self
        requires { F.is_of_form text ≡ true }
        ensures { result ≡ text }
    {
        Name {
            text,
            form: PhantomData,
        }
    }

    pub fn as_str(&self) -> &str
        ensures text { result.now ≡ self.now }
        ensures form { F.is_of_form self.now ≡ true }
    {
        self.text.as_str()
    }

    pub fn print(&self, alloc: Global) -> Result<Text, AllocError>
        ensures { IfOk result (λ text. text ≡ self.now) }
    {
        self.text.copy(alloc)
    }

    pub fn copy(&self, alloc: Global) -> Result<Self, AllocError>
        ensures copy { IfOk result (λ name. name ≡ self.now) }
        ensures form { F.is_of_form self.now ≡ true }
    {
        let text = self.text.copy(alloc)?;
        Ok(Name {
            text,
            form: PhantomData,
        })
    }

    pub fn into_text(self) -> Text
        ensures { result ≡ self }
    {
        let Name { text, form: _ } = self;
        text
    }
}

impl<F: Form> PartialEq for Name<F> {
    ghost use Rattle.std.specs.Str.{bytes_eq};
    ghost use Rattle.std.specs.Cmp.{partial_equiv_from_equiv};
    ghost use Rattle.std.proofs.lemmas.Cmp.{nat_list_eq_equiv};

    ghost eq = { bytes_eq };

    ghost laws = { partial_equiv_from_equiv nat_list_eq_equiv };

    fn eq(&self, other: &Self) -> bool {
        self.as_str() == other.as_str()
    }
}

impl<F: Form> Eq for Name<F> {
    ghost use Rattle.std.proofs.lemmas.Cmp.{nat_list_eq_equiv};

    ghost laws = { nat_list_eq_equiv };
}
