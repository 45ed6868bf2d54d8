//! Allocating boxes and lists in the parser, and a boxed wrapper that makes dropping a large value one call.

ghost use Rattle.std.specs.Prelude.{◌≡◌, [], ◌∷◌, ◌++◌, IfOk, OnOk, IfErr};
ghost use Rattle.net_model.specs.declared.model_parser.ParseError.TheVariants.{OutOfMemory};

use crate::model_parser::ParseError;
use net_base::Boxed;
use std::alloc::Global;
use std::marker::Model;

/// A boxed value of a type with many forms that stays alive across `?`; contracts see the value. To
/// the prover a box is a small value, independent of its contents, and dropping it is one call.
pub(crate) struct Stored<T: Drop> {
    inner: Box<T>,
}

impl<T: Drop> Model for Stored<T> {
    ghost Value = { T };

    ghost coded = { T.code };

    ghost view = { λ s. s.inner.value };
}

impl<T: Drop> Drop for Stored<T> {
    fn drop(self) {
        let Stored { inner: _inner } = self;
    }
}

impl<T: Drop> Stored<T> {
    pub(crate) fn new(alloc: Global, value: T) -> Result<Stored<T>, ParseError>
        ensures value { IfOk result (λ s. s ≡ value) }
        ensures memory { IfErr result (λ e. e ≡ OutOfMemory) }
    {
        let inner = Box::new(alloc, value)?;
        Ok(Stored { inner })
    }

    pub(crate) fn into_boxed(self) -> Boxed<T>
        ensures { result ≡ self }
    {
        let Stored { inner } = self;
        Boxed::new(inner)
    }

    pub(crate) fn into_inner(self) -> T
        ensures { result ≡ self }
    {
        let Stored { inner } = self;
        Box::into_inner(inner)
    }

    pub(crate) fn get(&self) -> &T
        ensures { result.now ≡ self.now }
    {
        &self.inner
    }
}

/// Allocates a box for the value. Fails only if memory runs out.
pub(crate) fn boxed<T: Drop>(alloc: Global, value: T) -> Result<Boxed<T>, ParseError>
    ensures value { IfOk result (λ b. b ≡ value) }
    ensures memory { IfErr result (λ e. e ≡ OutOfMemory) }
{
    Ok(Boxed::new(Box::new(alloc, value)?))
}

/// Appends a value. Fails only if memory runs out.
pub(crate) fn push<T: Drop>(list: &mut Vec<T>, item: Stored<T>) -> Result<(), ParseError>
    ensures items { OnOk result (list.new.items ≡ list.old.items ++ (item ∷ [])) }
    ensures memory { IfErr result (λ e. e ≡ OutOfMemory) }
{
    list.push(item.into_inner())?;
    Ok(())
}

/// A value that stays alive across `?`; contracts see the value. Dropping it is one call, so that
/// the prover does not analyze each form of the value at every `?`.
pub(crate) struct Carried<T: Drop> {
    inner: T,
}

impl<T: Drop> Model for Carried<T> {
    ghost Value = { T };

    ghost coded = { T.code };

    ghost view = { λ c. c.inner };
}

impl<T: Drop> Drop for Carried<T> {
    fn drop(self) {
        let Carried { inner: _inner } = self;
    }
}

impl<T: Drop> Carried<T> {
    pub(crate) fn new(inner: T) -> Carried<T>
        ensures { result ≡ inner }
    {
        Carried { inner }
    }

    pub(crate) fn into_inner(self) -> T
        ensures { result ≡ self }
    {
        let Carried { inner } = self;
        inner
    }

    pub(crate) fn get(&self) -> &T
        ensures { result.now ≡ self.now }
    {
        &self.inner
    }
}
