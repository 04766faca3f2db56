//! Queries that name the expressions which bytes spell.
use std::alloc::Global;
use vx_explain::{show_query, show_tree};
use vx_expr::Expr;
use vx_request::hex_bytes;
use vx_scan::{ScanError, Side, decode_expr};
use vx_wire::{ExprRegistry, ExprRegistryExt};

/// The query of the expression that the bytes of hexadecimal digits spell, or why there is none.
fn shown(alloc: Global, hex: &str) -> Result<String, ScanError> {
    match hex_bytes(alloc, hex) {
        Ok(Some(bytes)) => show_query(alloc, &ExprRegistry::default(), bytes.as_slice()),
        _ => Err(ScanError::NoMemory),
    }
}

/// Whether a query is written so.
fn is_written(query: Result<String, ScanError>, text: &str) -> bool {
    match query {
        Ok(query) => query.as_str() == text,
        Err(_) => false,
    }
}

/// Whether there is no query, for this reason.
fn is_refused(query: Result<String, ScanError>, refusal: ScanError) -> bool {
    match query {
        Ok(_) => false,
        Err(refused) => refused == refusal,
    }
}

/// Bytes and the queries of their expressions.
const QUERIES: [(&str, &str); 2] = [
    (
        "0662696e617279010202086765745f6974656d0201780104726f6f740000076c69746572616c08010006010a00000000",
        "($.x > 10i32)\n",
    ),
    (
        "046c696b6502000102086765745f6974656d04036120620104726f6f740000076c69746572616c0902000105697427732500",
        "ilike($.\"a b\", 'it''s%')\n",
    ),
];

/// The row's bytes.
const ROW: [u8; 7] = [4, b'r', b'o', b'o', b't', 0, 0];

/// The tree text of the row, from its bytes.
fn row_tree(alloc: Global) -> Result<String, ScanError> {
    show_tree(alloc, &ExprRegistry::default(), &ROW)
}

/// Whether the row's bytes spell the row.
fn row_is_decoded(alloc: Global) -> bool {
    match decode_expr(alloc, &ExprRegistry::default(), &ROW, Side::Filter) {
        Ok(expr) => matches!(expr.expr(), Expr::Root(_)),
        Err(_) => false,
    }
}

#[test]
fn ample(rt: HostRuntime) {
    for (hex, text) in QUERIES {
        assert!(rt; is_written(shown(rt.alloc(), hex), text));
    }
    assert!(rt; is_written(row_tree(rt.alloc()), "Root\n"));
    assert!(rt; row_is_decoded(rt.alloc()));
}

/// Bytes of no expression, and why.
const REFUSALS: [(&str, ScanError); 4] = [
    ("", ScanError::BadWire(Side::Text)),
    ("0764796e616d69630000", ScanError::UnknownExpr(Side::Text)),
    ("04726f6f74010000", ScanError::BadMetadata(Side::Text)),
    ("036e6f740000", ScanError::WrongChildren(Side::Text)),
];

#[test]
fn bytes_of_no_expression_have_no_query(rt: HostRuntime) {
    for (hex, refusal) in REFUSALS {
        assert!(rt; is_refused(shown(rt.alloc(), hex), refusal));
    }
}
