// A plan without tables, and the rows that it must give.
use crate::text::stream_text;
use anyhow::{Context, Result, bail};
use hex::decode;
use plan_check::check_holes;
use plan_decode::decode_plan;
use plan_raw::PlanTree;
use plan_rows::run_plan;
use plan_typed::Holed;
use row_engine::RowStream;
use std::alloc::Global;

/// A plan in hex, and its rows and its fault as lines of text.
#[derive(Drop)]
pub(crate) struct Case {
    pub(crate) name: String,
    plan: String,
    pub(crate) expected: String,
}

impl Case {
    /// No plan.
    pub(crate) fn new(alloc: Global) -> Case {
        Case {
            name: String::new(alloc),
            plan: String::new(alloc),
            expected: String::new(alloc),
        }
    }

    /// One line more.
    pub(crate) fn take_line(&mut self, line: &str) -> Result<()> {
        let (keyword, rest) = line.split_once(' ').unwrap_or((line, ""));
        match keyword {
            "case" => self.name.push_str(rest)?,
            "plan" => self.plan.push_str(rest)?,
            "row" | "fault" => {
                self.expected.push_str(line)?;
                self.expected.push('\n')?;
            }
            _ => bail!("unknown keyword"),
        }
        Ok(())
    }

    /// What the plan gives, as text.
    pub(crate) fn run(&self, alloc: Global) -> Result<String> {
        let rows = rows_of(alloc, self.plan.as_str())?;
        stream_text(alloc, &rows)
    }
}

/// The rows of a plan in hex.
fn rows_of(alloc: Global, plan: &str) -> Result<RowStream> {
    let checked = checked_plan(alloc, plan)?;
    run_plan(alloc, &checked, &[]).ok().context("no memory")
}

fn checked_plan(alloc: Global, plan: &str) -> Result<Holed> {
    let tree = tree_of(alloc, plan)?;
    check_holes(alloc, &tree).ok().context("refused")
}

fn tree_of(alloc: Global, plan: &str) -> Result<PlanTree> {
    let bytes = decode(alloc, plan)?;
    decode_plan(alloc, &bytes).ok().context("unreadable")
}
