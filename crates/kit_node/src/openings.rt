ghost use Rattle.std.specs.Prelude.{◌≡◌};
ghost use Rattle.kit_lbts.specs.declared.view.Scheme.TheVariants as scheme;

use kit_known::{Known, Reads};
use kit_lbts::{Opening, Scheme};
use kit_rules::Federation;

/// The opening of a floor for the nodes of a federation: it has that federation, and the reduction
/// that nodes use.
pub fn opening(federation: &Federation) -> Opening
    ensures federation { result.federation.value ≡ federation.now }
    ensures scheme { result.scheme ≡ scheme.Butterfly }
{
    Opening {
        federation: Known::of::<Federation, TheFederation>(federation),
        scheme: Scheme::Butterfly,
    }
}

struct TheFederation;

impl Reads<Federation, Federation> for TheFederation {
    ghost read = { λ f. f };
}
