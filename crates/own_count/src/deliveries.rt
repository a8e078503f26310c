//! A count of our own: an observer of a simulation that counts its deliveries.

ghost use Rattle.std.specs.Prelude.{◌≡◌, IfOk};
ghost use Rattle.kit_rules.specs.Simulation.{simulation, lines_of};
ghost use Rattle.own_count.specs.Counting.{deliveries};

use kit_base::Message;
use kit_oracle::{Observer, OracleEnd, observe};
use kit_rules::Federation;
use std::alloc::{AllocError, Global};

/// How many messages were delivered so far.
#[derive(Drop)]
struct Deliveries {
    count: u64,
}

impl Observer for Deliveries {
    // the count is that of the deliveries among the lines so far
    ghost shows = { λ _ _ ls s. s.count ≡ deliveries ls };

    // turns are not counted
    ghost over = { λ p n ls s none h. h };

    fn deliver(
        &mut self,
        _granted: u64,
        _federate: u8,
        _message: Message,
    ) -> Result<(), AllocError> {
        self.count = self.count.saturating_add(1);
        Ok(())
    }

    fn grant(
        &mut self,
        _federation: &Federation,
        _pair: (u64, u8),
        _made: &[Message],
    ) -> Result<(), AllocError> {
        Ok(())
    }
}

/// How many messages the simulation of a federation delivers.
pub fn count_deliveries(alloc: Global, federation: &Federation) -> Result<u64, OracleEnd>
    ensures { IfOk result (λ count.
        count ≡ deliveries (lines_of (simulation federation.now).blocks)) }
{
    let mut counted = Deliveries { count: 0 };
    let _vars = observe(alloc, federation, &mut counted)?;
    Ok(counted.count)
}
