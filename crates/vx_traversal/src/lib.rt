//! Generic walks over trees: visits, rewrites and folds over every [`Node`], and the containers
//! that hold a node's children.
#![tactic(auto)]

mod containers;
mod errors;
mod expressions;
mod ext;
mod fold;
mod fold_steps;
mod folding;
mod node_refs;
mod nodes;
mod order;
mod paths;
mod references;
mod rewriter;
mod rewriting;
mod transform;
mod up_step;
mod visitor;
mod walking;

pub use containers::{
    ByCall, CloneContainer, EachCursor, ElementMapper, Holds, NodeContainer, NodeRefContainer,
    PairCursor, map_single,
};
pub use errors::{Walk, WalkError};
pub use ext::NodeExt;
pub use fold::{FoldDown, FoldDownContext, FoldUp, NodeFolder, NodeFolderContext};
pub use fold_steps::FoldSteps;
pub use nodes::Node;
pub use order::TraversalOrder;
pub use references::{ReferenceCollector, VortexExprExt};
pub use rewriter::NodeRewriter;
pub use transform::Transformed;
pub use up_step::UpStep;
pub use visitor::{NodeVisitor, pre_order_visit_down, pre_order_visit_up};
