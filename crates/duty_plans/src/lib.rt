//! What a duty calls, step by step: the plans of votes, blocks and aggregates, and what holds of whatever carries them out.
#![tactic(auto)]

mod choices;
mod ended;
mod got;
mod laws;
mod result;
mod setup;
mod task;
mod votes;
mod work;

pub use choices::{aggregate_tasks, choose_tasks, reports};
pub use ended::{Aggregation, Ended, Unsent, barred, left_by, merged, over, results_of, said};
pub use got::{
    AggregateDiffers, Got, aggregate_in, block_in, check_aggregate, details_root, grant_in,
    posted_in, signature_in, vote_in,
};
pub use laws::{aggregate_law, duty_law, lane_law, repeat_law};
pub use result::{DutyResult, Refusal, Unsigned};
pub use setup::DutySetup;
pub use task::{Task, again_tasks, fresh};
pub use votes::{data_tasks, vote_answers, vote_ends, vote_message, vote_tasks};
pub use work::SlotWork;
