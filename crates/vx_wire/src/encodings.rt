// The kinds of expressions in the wire form.
ghost use Rattle.std.specs.Prelude.{◌≡◌, ◌<◌, Some};
ghost use Rattle.vx_expr.specs.Nodes.{node_tree};
ghost use Rattle.vx_wire.specs.Encodings.{encoding_of, encoding_id, kind_named, kind_place};

use std::fmt;
use vx_expr::{Expr, ExprId, ExprRef};

/// A kind of expressions, in the order of the names.
#[derive(Clone, Copy, PartialEq, Eq, Debug)]
pub enum ExprEncoding {
    Between,
    Binary,
    Cast,
    Dynamic,
    GetItem,
    IsNull,
    Like,
    ListContains,
    Literal,
    Merge,
    Not,
    Pack,
    Root,
    Select,
}

/// All kinds, in the order of their names.
const KINDS: [ExprEncoding; 14] = [
    ExprEncoding::Between,
    ExprEncoding::Binary,
    ExprEncoding::Cast,
    ExprEncoding::Dynamic,
    ExprEncoding::GetItem,
    ExprEncoding::IsNull,
    ExprEncoding::Like,
    ExprEncoding::ListContains,
    ExprEncoding::Literal,
    ExprEncoding::Merge,
    ExprEncoding::Not,
    ExprEncoding::Pack,
    ExprEncoding::Root,
    ExprEncoding::Select,
];

/// The name that the Rust crate gives to an encoding that is shared.
pub type ExprEncodingRef = ExprEncoding;

impl ExprEncoding {
    /// The name of the kind.
    pub fn id(self) -> ExprId
        ensures { result.now ≡ encoding_id self }
    {
        match self {
            ExprEncoding::Between => "between",
            ExprEncoding::Binary => "binary",
            ExprEncoding::Cast => "cast",
            ExprEncoding::Dynamic => "dynamic",
            ExprEncoding::GetItem => "get_item",
            ExprEncoding::IsNull => "is_null",
            ExprEncoding::Like => "like",
            ExprEncoding::ListContains => "list_contains",
            ExprEncoding::Literal => "literal",
            ExprEncoding::Merge => "merge",
            ExprEncoding::Not => "not",
            ExprEncoding::Pack => "pack",
            ExprEncoding::Root => "root",
            ExprEncoding::Select => "select",
        }
    }

    /// The place of the kind in the order of the names.
    pub(crate) fn place(self) -> usize
        ensures place { result ≡ kind_place self }
        ensures within { result < 14 }
    {
        match self {
            ExprEncoding::Between => 0,
            ExprEncoding::Binary => 1,
            ExprEncoding::Cast => 2,
            ExprEncoding::Dynamic => 3,
            ExprEncoding::GetItem => 4,
            ExprEncoding::IsNull => 5,
            ExprEncoding::Like => 6,
            ExprEncoding::ListContains => 7,
            ExprEncoding::Literal => 8,
            ExprEncoding::Merge => 9,
            ExprEncoding::Not => 10,
            ExprEncoding::Pack => 11,
            ExprEncoding::Root => 12,
            ExprEncoding::Select => 13,
        }
    }
}

impl fmt::Display for ExprEncoding {
    ghost output = { λ e. Some (encoding_id e) };

    fn fmt<W: fmt::Write>(&self, f: &mut fmt::Formatter<W>) -> fmt::Result {
        f.write_str(self.id())
    }
}

/// The kind of an expression.
pub fn encoding(expr: &ExprRef) -> ExprEncoding
    ensures { result ≡ encoding_of expr.now }
{
    match expr.expr() {
        Expr::Between(_) => ExprEncoding::Between,
        Expr::Binary(_) => ExprEncoding::Binary,
        Expr::Cast(_) => ExprEncoding::Cast,
        Expr::Dynamic(_) => ExprEncoding::Dynamic,
        Expr::GetItem(_) => ExprEncoding::GetItem,
        Expr::IsNull(_) => ExprEncoding::IsNull,
        Expr::Like(_) => ExprEncoding::Like,
        Expr::ListContains(_) => ExprEncoding::ListContains,
        Expr::Literal(_) => ExprEncoding::Literal,
        Expr::Merge(_) => ExprEncoding::Merge,
        Expr::Not(_) => ExprEncoding::Not,
        Expr::Pack(_) => ExprEncoding::Pack,
        Expr::Root(_) => ExprEncoding::Root,
        Expr::Select(_) => ExprEncoding::Select,
    }
}

/// The kind of this name.
#[tactic(auto, unfolding(crate::specs::Encodings::kind_named))]
pub(crate) fn kind_of_name(id: &str) -> Option<ExprEncoding>
    ensures { result ≡ kind_named id.now }
{
    KINDS.iter().copied().find(|kind| id == kind.id())
}
