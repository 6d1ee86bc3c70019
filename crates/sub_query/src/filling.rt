// A plan whose subqueries are worked out one after the other.
ghost use Rattle.std.specs.Prelude.{◌≡◌, ◌<◌, [], Some, None, IfOk, OnErr, OnSome, length};
ghost use Rattle.std.specs.List.{flat_map};
ghost use Rattle.std.specs.Option.{option_map};
ghost use Rattle.batch.specs.BatchRows.{rows_of};
ghost use Rattle.sub_types.specs.Stream.{ended, rows_alone};
ghost use Rattle.sub_types.specs.declared.fault.Fault.{Fault};
ghost use Rattle.plan_typed.specs.declared.rel.Rel.{Rel};
ghost use Rattle.plan_typed.specs.declared.sub.Sub.{Sub};
ghost use Rattle.plan_denote.specs.Denote.{Tables, denote};
ghost use Rattle.plan_denote.specs.Holes.{filled};
ghost use Rattle.plan_denote.specs.Subqueries.{denote_plan, worth_of};

use crate::worth_of::worth_of_batches;
use crate::{KnownWorth, filled_rel};
use batch::Batch;
use plan_typed::{Holed, Rel};
use std::alloc::Global;
use std::marker::Model;
use sub_types::{Fault, NoMemory};

/// A plan whose subqueries are worked out one after the other: the plan as it was checked, and what the first so many are
/// worth. A relation is copied once, with all that is known put in.
#[derive(Drop)]
pub struct Filling {
    holed: Holed,
    known: Vec<KnownWorth>,
}

impl Model for Filling {
    ghost use Rattle.sub_query.specs.Progress.{Progress, progress};
    ghost use Rattle.std.specs.Coded.{codes};
    ghost use Rattle.plan_typed.specs.contracts.expr.Expr as expr;
    ghost use Rattle.plan_typed.specs.contracts.rel.Op as op;

    ghost Value = { Progress };

    ghost coded = { Prim.hlevel (codes, expr.the_row.coded, op.the_row.coded) };

    ghost view = { λ filling. progress filling.holed filling.known.items };
}

impl Filling {
    ghost use Rattle.sub_query.specs.Progress.{next_of, denoted, Follows, Leads};

    /// Nothing is known yet.
    pub fn new(alloc: Global, holed: Holed) -> Filling
        ensures plan { result.plan ≡ holed }
        ensures known { result.known ≡ [] }
        ensures denoted { (tables : Tables) → denoted tables result ≡ denote_plan tables holed }
    {
        Filling {
            holed,
            known: Vec::new(alloc),
        }
    }

    /// The relation of the subquery that comes next with the values of the earlier ones put in, or none after the last.
    pub fn next_rel(&self, alloc: Global) -> Result<Option<Rel>, NoMemory>
        ensures made { IfOk result (λ made. made ≡ option_map (λ sub. filled self.now.known sub.rel) (next_of self.now)) }
        ensures within { IfOk result (λ made. OnSome made (length self.now.known < length self.now.plan.subs)) }
        ensures fault { IfOk result
            (λ made. (tables : Tables) (rel : Rel) (fault : Fault) → made ≡ Some rel → (denote tables rel).end ≡ Some fault
            → denoted tables self.now ≡ ended (Some fault)) }
    {
        match self.holed.subs.get(self.known.len()) {
            Some(sub) => Ok(Some(filled_rel(alloc, &sub.rel, &self.known)?)),
            None => Ok(None),
        }
    }

    /// The main relation with what is known put in.
    pub fn main_rel(&self, alloc: Global) -> Result<Rel, NoMemory>
        ensures made { IfOk result (λ made. made ≡ filled self.now.known self.now.plan.typed.rel) }
        ensures denoted { IfOk result
            (λ made. (tables : Tables) → next_of self.now ≡ None → denote tables made ≡ denoted tables self.now) }
    {
        filled_rel(alloc, &self.holed.typed.rel, &self.known)
    }

    /// Puts the value of the subquery that comes next into its place, by its rows. A fault is given exactly for a scalar of more
    /// than one row, and then, as after `NoMemory`, nothing has changed.
    pub fn fill(&mut self, alloc: Global, rows: &[Batch]) -> Result<Option<Fault>, NoMemory>
        requires { length self.old.known < length self.old.plan.subs }
        ensures filled { IfOk result
            (λ fault. (sub : Sub) → next_of self.old ≡ Some sub
            → Follows self.old sub.hole (worth_of sub.rel sub.kind (flat_map rows_of rows.now)) fault self.new) }
        ensures denoted { IfOk result
            (λ fault. (tables : Tables) (sub : Sub) → next_of self.old ≡ Some sub
            → denote tables (filled self.old.known sub.rel) ≡ rows_alone (flat_map rows_of rows.now)
            → Leads tables self.old fault self.new) }
        ensures no_memory { OnErr result (self.new ≡ self.old) }
    {
        let Some(sub) = self.holed.subs.get(self.known.len()) else {
            unreachable!();
        };
        let hole = sub.hole;
        match worth_of_batches(alloc, sub, rows)? {
            Ok(worth) => {
                self.known.push(KnownWorth { hole, worth })?;
                Ok(None)
            }
            Err(fault) => Ok(Some(fault)),
        }
    }
}
