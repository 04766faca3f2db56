// What a scan reports.
ghost use Rattle.std.specs.Prelude.{◌≡◌, map};
ghost use Rattle.vx_dtype.specs.RawViews.{raw_view};

use std::marker::Model;
use vx_dtype::{DType, FieldNames, ScalarValue};

/// The values of rows, in order. They are seen as the list of their raw values.
#[derive(Debug, Drop)]
pub struct RowValues {
    values: Vec<ScalarValue>,
}

impl Model for RowValues {
    ghost use Rattle.std.specs.Prelude.{List, map};
    ghost use Rattle.vx_dtype.specs.Values.{Raw};
    ghost use Rattle.vx_scan.specs.RowCodes.{coded_rows};

    ghost Value = { List Raw };

    ghost coded = { coded_rows };

    ghost use Rattle.vx_dtype.specs.RawViews.{raw_view};

    ghost view = { λ r. map raw_view r.values.items };
}

impl RowValues {
    /// These values, in their order.
    pub fn new(values: Vec<ScalarValue>) -> RowValues
        ensures { result ≡ map raw_view values.items }
    {
        RowValues { values }
    }

    /// The values as a slice.
    pub fn as_slice(&self) -> &[ScalarValue]
        ensures { map raw_view result.now ≡ self.now }
    {
        self.values.as_slice()
    }
}

/// The numbers of blocks, in order. They are seen as a list.
#[derive(Debug, Drop)]
pub struct BlockNumbers {
    numbers: Vec<u32>,
}

impl Model for BlockNumbers {
    ghost use Rattle.std.specs.Prelude.{ℕ, List};

    ghost Value = { List ℕ };

    ghost view = { λ b. b.numbers.items };
}

impl BlockNumbers {
    /// These numbers, in their order.
    pub fn new(numbers: Vec<u32>) -> BlockNumbers
        ensures { result ≡ numbers.items }
    {
        BlockNumbers { numbers }
    }

    /// The numbers as a slice.
    pub fn as_slice(&self) -> &[u32]
        ensures { result.now ≡ self.now }
    {
        self.numbers.as_slice()
    }
}

/// What a scan reports: the projection's type, its value at each row at which the filter is true, the blocks that were
/// kept and those that the statistics ruled out, and the columns that the filter and the projection ask, in table order.
#[derive(Debug, Drop)]
pub struct ScanReport {
    pub dtype: DType,
    pub rows: RowValues,
    pub kept: BlockNumbers,
    pub skipped: BlockNumbers,
    pub filter_columns: FieldNames,
    pub projection_columns: FieldNames,
}
