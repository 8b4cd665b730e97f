//! Passes of the one router that all threads of a program call.
ghost use Rattle.std.specs.Prelude.{◌≡◌, ◌≤◌, []};
ghost use Rattle.slot_lock.specs.Passes.{IsPassOf};
ghost use Rattle.router_daemon.specs.Passes.{IsLegalPass};
ghost use Rattle.router_daemon.specs.Sets.{IsPassOf-prop};

use router_operator::Naming;
use slot_lock::Pass;
use std::marker::{Model, PhantomData};

/// A pass of the router, as threads hand it on.
#[derive(Drop)]
pub(crate) struct RouterPass<J: Naming> {
    pub(crate) pass: Pass,
    of: PhantomData<J>,
    pub(crate) ghost is_of: { IsPassOf J.router pass } by { IsPassOf-prop J.router pass },
}

impl<J: Naming> RouterPass<J> {
    /// A pass, to be handed on.
    pub(crate) fn new(pass: Pass) -> RouterPass<J>
        requires { IsPassOf J.router pass }
        ensures { result.pass ≡ pass }
    {
        RouterPass {
            pass,
            of: PhantomData,
        }
    }

    /// The pass that was handed on. It has a share, as each pass has.
    pub(crate) fn pass(self) -> Pass
        ensures of { IsPassOf J.router result }
        ensures some_shares { 1 ≤ result.fragment.shares }
        ensures same { result ≡ self.pass }
    {
        let RouterPass { pass, .. } = self;
        let _ = pass.shares();
        pass
    }
}

/// A pass of the router by which nothing was called, as threads hand it on. A contract sees it as its pass.
#[derive(Drop)]
pub(crate) struct FreshPass<J: Naming> {
    pass: Pass,
    of: PhantomData<J>,
}

impl<J: Naming> Model for FreshPass<J> {
    ghost use Rattle.slot_lock.specs.Passes.{PassView};
    ghost use Rattle.router_daemon.specs.Passes.{IsFreshPass};

    ghost Value = { PassView };

    ghost view = { λ t. t.pass };

    ghost invariant = { λ t. IsFreshPass J.router t.pass };
}

impl<J: Naming> FreshPass<J> {
    /// A pass, to be handed on.
    pub(crate) fn new(pass: Pass) -> FreshPass<J>
        requires of { IsPassOf J.router pass }
        requires no_calls { pass.fragment.mine ≡ [] }
        ensures { result ≡ pass }
    {
        FreshPass {
            pass,
            of: PhantomData,
        }
    }

    /// The pass that was handed on.
    pub(crate) fn pass(self) -> Pass
        ensures of { IsPassOf J.router result }
        ensures no_calls { result.fragment.mine ≡ [] }
        ensures same { result ≡ self }
    {
        let FreshPass { pass, .. } = self;
        pass
    }
}

/// A pass of the router that has seen a legal history, as threads hand it on. A contract sees it as its pass.
#[derive(Drop)]
pub(crate) struct LegalPass<J: Naming> {
    pass: Pass,
    of: PhantomData<J>,
}

impl<J: Naming> Model for LegalPass<J> {
    ghost use Rattle.slot_lock.specs.Passes.{PassView};
    ghost use Rattle.router_daemon.specs.Passes.{IsLegalPass};

    ghost Value = { PassView };

    ghost view = { λ t. t.pass };

    ghost invariant = { λ t. IsLegalPass J.router t.pass };
}

impl<J: Naming> LegalPass<J> {
    /// A pass, to be handed on.
    pub(crate) fn new(pass: Pass) -> LegalPass<J>
        requires { IsLegalPass J.router pass }
        ensures { result ≡ pass }
    {
        LegalPass {
            pass,
            of: PhantomData,
        }
    }

    /// The pass that was handed on.
    pub(crate) fn pass(self) -> Pass
        ensures legal { IsLegalPass J.router result }
        ensures same { result ≡ self }
    {
        let LegalPass { pass, .. } = self;
        pass
    }
}
