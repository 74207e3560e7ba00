// What stays the same down a subtree; else definitions and laws only: events, and what a walk does with them.
#![tactic(auto)]

use options::FormattingOptions;

// What stays the same down a subtree.
#[derive(Clone, Copy)]
pub struct Context {
    pub options: FormattingOptions,
    pub indent: usize,
}
