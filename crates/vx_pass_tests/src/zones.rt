//! Statistics that no request has: of a count of what is no number, of nulls of another type, and four hundred thousand of them; and each call
//! with ample memory.
use crate::samples::{int, name};
use std::alloc::Global;
use std::test::Fail;
use vx_dtype::Nullability::{NonNullable, Nullable};
use vx_dtype::{
    DType, FieldName, FieldNames, FieldPath, Mem, PType, Scalar, ScalarValue, Stat, StructFields,
    WrongValue,
};
use vx_zones::{Scalars, ZoneError, ZoneMap, ZoneStat};

/// A null of an integer type.
fn null(ptype: PType) -> Result<Scalar, WrongValue> {
    Scalar::try_new(DType::Primitive(ptype, Nullable), ScalarValue::Null)
}

/// A statistic of the column `a`, null in one block.
fn stats(alloc: Global, stat: Stat, null: Scalar) -> Mem<Vec<ZoneStat>> {
    let path = FieldPath::from_name(alloc, name(alloc, "a")?)?;
    let values = Scalars::new(vec![in alloc; null]?);
    Ok(vec![in alloc; ZoneStat { path, stat, values }]?)
}

/// The column `a` of numbers.
fn columns(alloc: Global) -> Mem<StructFields> {
    let names = vec![in alloc; name(alloc, "a")?]?;
    let types = vec![in alloc; int()]?;
    StructFields::new(alloc, FieldNames::new(alloc, names)?, types)
}

/// The zones of a block of that column with these statistics.
fn zones(alloc: Global, stats: Vec<ZoneStat>) -> Result<ZoneMap, ZoneError> {
    ZoneMap::try_new(alloc, columns(alloc)?, vec![in alloc; 2u32]?, stats)
}

/// Why zones are refused.
fn refusal(made: Result<ZoneMap, ZoneError>) -> Option<ZoneError> {
    match made {
        Ok(_) => None,
        Err(error) => Some(error),
    }
}

/// Statistics, each with the type of its null, and what zones with it are refused for.
const REFUSALS: [(Stat, PType, ZoneError); 3] = [
    (Stat::NaNCount, PType::U64, ZoneError::BadStatPath),
    (Stat::Max, PType::I64, ZoneError::WrongStatType),
    (Stat::NullCount, PType::I64, ZoneError::WrongStatType),
];

#[test]
fn statistics_are_refused(rt: HostRuntime) -> Result<(), Fail> {
    let alloc = rt.alloc();
    for (stat, ptype, refused) in REFUSALS {
        let made = zones(alloc, stats(alloc, stat, null(ptype)?)?);
        assert!(rt; refusal(made) == Some(refused));
    }
    Ok(())
}

#[test]
fn ample(rt: HostRuntime) -> Result<(), Fail> {
    let alloc = rt.alloc();
    let made = zones(alloc, stats(alloc, Stat::Min, null(PType::I32)?)?);
    let paths = made?.available(alloc)?;
    assert!(rt; paths.len() == 1);
    Ok(())
}

/// The name of these characters and a number.
fn numbered_name(alloc: Global, start: &str, number: usize) -> Mem<FieldName> {
    let text = format!(in alloc; "{start}{number}")?;
    FieldName::new(alloc, text.as_str())
}

/// Fields of these types under names that begin with these characters and end with a number.
fn numbered(alloc: Global, start: &str, dtypes: Vec<DType>) -> Mem<StructFields> {
    let mut names = Vec::new(alloc);
    for i in 0..dtypes.len() {
        let text = format!(in alloc; "{start}{i}")?;
        names.push(FieldName::new(alloc, text.as_str())?)?;
    }
    StructFields::new(alloc, FieldNames::new(alloc, names)?, dtypes)
}

/// 1,024 columns, each a struct of the same 131 numbers.
fn wide(alloc: Global) -> Mem<StructFields> {
    let mut dtypes = Vec::new(alloc);
    for _ in 0..131u32 {
        dtypes.push(int())?;
    }
    let inner = DType::Struct(numbered(alloc, "field", dtypes)?, NonNullable);
    let mut columns = Vec::new(alloc);
    for _ in 0..1024u32 {
        columns.push(inner.clone()?)?;
    }
    numbered(alloc, "column", columns)
}

/// Adds the three statistics of a path, without values.
fn add_three(alloc: Global, stats: &mut Vec<ZoneStat>, path: &FieldPath) -> Mem<()> {
    for stat in [Stat::Min, Stat::Max, Stat::NullCount] {
        let path = path.clone()?;
        let values = Scalars::new(Vec::new(alloc));
        stats.push(ZoneStat { path, stat, values })?;
    }
    Ok(())
}

/// Adds the three statistics of each number in a column.
fn add_column(alloc: Global, stats: &mut Vec<ZoneStat>, column: &FieldPath) -> Mem<()> {
    for field in 0..131usize {
        let path = column.push(alloc, numbered_name(alloc, "field", field)?)?;
        add_three(alloc, stats, &path)?;
    }
    Ok(())
}

/// The three statistics of each number in each column.
fn many(alloc: Global) -> Mem<Vec<ZoneStat>> {
    let mut stats = Vec::new(alloc);
    for column in 0..1024usize {
        let column = FieldPath::from_name(alloc, numbered_name(alloc, "column", column)?)?;
        add_column(alloc, &mut stats, &column)?;
    }
    Ok(stats)
}

#[test]
fn four_hundred_thousand_statistics(rt: HostRuntime) -> Result<(), Fail> {
    let alloc = rt.alloc();
    let zones = ZoneMap::try_new(alloc, wide(alloc)?, Vec::new(alloc), many(alloc)?)?;
    assert!(rt; zones.statistics().len() == 402_432);
    Ok(())
}
