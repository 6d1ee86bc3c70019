// The end of what a step gives.
ghost use Rattle.std.specs.Prelude.{◌≡◌};
ghost use Rattle.row_ops.specs.Stepped.{end_by};

use kernels::Stop;
use sub_types::Fault;

/// The fault of the stop, by the relation of this number, or else the input's end.
pub(crate) fn end_after(relation: u32, stop: Stop, end: Option<Fault>) -> Option<Fault>
    ensures { result ≡ end_by relation stop end }
{
    match stop {
        Stop::Never => end,
        Stop::At { kind, .. } => Some(Fault { relation, kind }),
    }
}
