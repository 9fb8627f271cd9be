// Refusals of open.
ghost use Rattle.std.specs.Prelude.{◌≡◌};
ghost use Rattle.answer.specs.Refusal.{returned_no};
ghost use Rattle.call.specs.Open.{open_refusal};

use answer::Refusal;

// The table's length, the limits, the record's length.
#[tactic(auto, unfolding(call::specs::Open::open_refusal))]
pub(crate) fn open(
    table: usize,
    shares: &[u8; 8],
    ceilings: &[u8; 8],
    rec: usize,
) -> Result<(), Refusal>
    ensures { returned_no result ≡ open_refusal table shares.now ceilings.now rec }
{
    if table < table::layout::TABLE {
        return Err(Refusal::Table);
    }
    if !region::acceptable(shares, ceilings) {
        return Err(Refusal::Limits);
    }
    if rec < answer::RECORD {
        return Err(Refusal::Lent);
    }
    Ok(())
}
