// A plan that is found, readable and accepted.
ghost use Rattle.std.specs.Prelude.{◌≡◌, ◌≢◌, ◌≤◌, IfOk, IfErr, Some, Ok, Err, length};
ghost use Rattle.world.specs.Counts.{Rose};
ghost use Rattle.world.specs.Files.{Files};
ghost use Rattle.run_accepted.specs.Done.{IsAccepted};
ghost use Rattle.run_top.specs.Answer.{MAX_PLAN, accepted_in, accepted_at, IsRefusalOf, IsPlanRefusal};

use crate::plan::{Found, MAX_PLAN, read_plan};
use plan_check::check_holes;
use plan_decode::{DecodeError, decode_plan};
use plan_typed::Holed;
use plan_verdict::CheckError;
use run_words::Status;
use std::alloc::Global;
use table_open::FileRule;
use world::{Folder, FolderError};

/// The checked plan of this name, or why it isn't accepted.
#[tactic(auto, unfolding(crate::specs::Answer::tree_in, crate::specs::Answer::accepted_in))]
pub(crate) fn accepted_plan<F: Folder>(
    alloc: Global,
    folder: &mut F,
    name: &str,
) -> Result<Holed, Status>
    ensures plan { (files : Files) → F.files folder.old ≡ Some files → IfOk result (λ plan. accepted_at files name.now ≡ Ok plan) }
    ensures accepted { IfOk result IsAccepted }
    ensures refused { (files : Files) → F.files folder.old ≡ Some files
        → IfErr result (IsRefusalOf (accepted_at files name.now)) }
    ensures named { IfErr result IsPlanRefusal }
    ensures read_fault { result ≡ Err Status.ReadFault → Rose (F.read_faults folder.old) (F.read_faults folder.new) }
    ensures never_falls { F.read_faults folder.old ≤ F.read_faults folder.new }
    ensures files { F.files folder.new ≡ F.files folder.old }
    ensures write_faults { F.write_faults folder.new ≡ F.write_faults folder.old }
    ensures lent { F.lent folder.new ≡ F.lent folder.old }
{
    match read_plan(alloc, folder, name) {
        Ok(Found::Plan(bytes)) => accepted(alloc, &bytes),
        Ok(Found::TooLong) => Err(Status::PlanUnreadable {
            place: MAX_PLAN as u64,
        }),
        Ok(Found::Missing) => Err(Status::FileRefused {
            file: 0,
            rule: FileRule::Missing,
        }),
        Err(FolderError::Failed) => Err(Status::ReadFault),
        Err(FolderError::NoMemory) => Err(Status::NoMemory),
    }
}

// The checked plan of these bytes, or why it isn't accepted.
#[tactic(auto, unfolding(crate::specs::Answer::tree_in, crate::specs::Answer::accepted_in))]
fn accepted(alloc: Global, bytes: &[u8]) -> Result<Holed, Status>
    requires { length bytes.now ≤ MAX_PLAN }
    ensures plan { IfOk result (λ plan. accepted_in bytes.now ≡ Ok plan) }
    ensures accepted { IfOk result IsAccepted }
    ensures refused { IfErr result (IsRefusalOf (accepted_in bytes.now)) }
    ensures named { IfErr result IsPlanRefusal }
    ensures no_read_fault { result ≢ Err Status.ReadFault }
{
    let tree = match decode_plan(alloc, bytes) {
        Ok(tree) => tree,
        Err(DecodeError::Unreadable { place } | DecodeError::TooDeep { place }) => {
            return Err(Status::PlanUnreadable { place });
        }
        Err(DecodeError::NoMemory) => return Err(Status::NoMemory),
    };
    match check_holes(alloc, &tree) {
        Ok(plan) => Ok(plan),
        Err(CheckError::Refused { relation, rule }) => Err(Status::PlanRefused { relation, rule }),
        Err(CheckError::NoMemory) => Err(Status::NoMemory),
    }
}
