//! The stages of a router's life.

use router_state::Stage;
use std::test::Fail;

const STAGES: [Stage; 3] = [Stage::Serving, Stage::Stopping, Stage::Abandoned];

/// The stage is the later one of those that were reached, in whatever order.
#[test]
fn stage_never_goes_back(rt: HostRuntime) -> Result<(), Fail> {
    for (before, stage) in STAGES.iter().enumerate() {
        for (rank, next) in STAGES.iter().enumerate() {
            assert_eq!(rt; stage.advance(*next), STAGES[before.max(rank)]);
        }
    }
    Ok(())
}
