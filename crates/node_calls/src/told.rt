//! What a node tells of its calls.
use crate::answer::{Answer, NodeFault};
use crate::ask::Ask;
use crate::post::Post;
use edge_kit::PubKey;
use slash_defs::Message;

/// What was posted, under a grant for this key and, where it grants one, this message.
#[derive(Drop)]
pub struct PostCall {
    pub key: PubKey,
    pub message: Option<Message>,
    pub post: Post,
}

/// A call of a node with its reply.
#[derive(Drop)]
pub enum NodeCall {
    /// A question.
    Asked(Ask, Result<Answer, NodeFault>),
    /// Something signed that was handed over.
    Posted(PostCall, Result<(), NodeFault>),
}
