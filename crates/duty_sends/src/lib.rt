//! What was signed under a grant is posted, and the grant is settled: the end of each duty. And aggregates of votes, from the
//! choice of their aggregators to the post.
#![tactic(auto)]

mod aggregating;
mod sending;

pub use aggregating::{aggregate, choose};
pub use sending::{send, settle};
