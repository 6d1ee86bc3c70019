// What a plan is checked under.
ghost use Rattle.std.specs.Prelude.{◌≡◌};

use plan_rules::Declarations;
use std::alloc::Global;
use std::marker::Model;

/// The functions that a plan declares, and whether its subqueries are taken.
#[derive(Drop)]
pub struct Terms<'a> {
    alloc: Global,
    declared: Declarations<'a>,
    with_subqueries: bool,
}

impl<'a> Model for Terms<'a> {
    ghost use Rattle.plan_verdict.specs.Exprs.{Terms as Seen};

    ghost Value = { Seen };

    ghost view = { λ terms. record { declared = terms.declared; with_subqueries = terms.with_subqueries } };
}

impl<'a> Terms<'a> {
    /// The functions that a plan declares, and whether its subqueries are taken.
    pub fn new(alloc: Global, declared: Declarations<'a>, with_subqueries: bool) -> Terms<'a>
        ensures { result ≡ record { declared = declared.entry; with_subqueries = with_subqueries } }
    {
        Terms {
            alloc,
            declared,
            with_subqueries,
        }
    }

    /// The allocator that checks use.
    pub fn alloc(&self) -> Global {
        self.alloc
    }

    /// The functions that the plan declares.
    pub fn declared(&self) -> &Declarations<'a>
        ensures { result.now ≡ self.now.declared }
    {
        &self.declared
    }

    /// Whether subqueries are taken, or are an unsupported form.
    pub fn takes_subqueries(&self) -> bool
        ensures { result ≡ self.now.with_subqueries }
    {
        self.with_subqueries
    }
}
