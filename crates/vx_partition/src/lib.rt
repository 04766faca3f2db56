//! Annotations of expressions, and the split of an expression into one part for each annotation.
#![tactic(auto)]

mod annotating;
mod annotation;
mod annotations;
mod numbered;
mod numbers;
mod partitions;
mod scope_access;
mod shares;
mod split_texts;
mod splitting;
mod taking;

pub use annotating::descendent_annotations;
pub use annotation::{Annotation, AnnotationFn};
pub use annotations::Annotations;
pub use scope_access::{
    FieldAccesses, ScopeAccess, annotate_scope_access, immediate_scope_access,
    immediate_scope_accesses,
};
pub use splitting::{PartitionedExpr, partition};
