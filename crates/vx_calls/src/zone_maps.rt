// Zones that are made of what breaks no rule of zones.
ghost use Rattle.std.specs.Prelude.{◌≡◌, None, Ok, IfOk};
ghost use Rattle.vx_semantics.specs.Tables.{Zones};
ghost use Rattle.vx_zones.specs.ZoneAnswers.{MakesZones};
ghost use Rattle.vx_zones.specs.Zoning.{broken_rule};

use vx_dtype::{Mem, NoMemory};
use vx_zones::{ZoneError, ZoneMap};

/// The zones of an answer, which isn't refused where they break no rule.
pub(crate) fn sound(answer: Result<ZoneMap, ZoneError>) -> Mem<ZoneMap>
    requires { (zones : Zones) × MakesZones zones answer × (broken_rule zones ≡ None) }
    ensures { IfOk result (λ made. answer ≡ Ok made) }
{
    match answer {
        Ok(made) => Ok(made),
        Err(ZoneError::NoMemory) => Err(NoMemory),
        Err(ZoneError::DuplicateName) => unreachable!(),
        Err(ZoneError::DeepType) => unreachable!(),
        Err(ZoneError::BadStatPath) => unreachable!(),
        Err(ZoneError::DuplicateStat) => unreachable!(),
        Err(ZoneError::WrongStatCount) => unreachable!(),
        Err(ZoneError::WrongStatType) => unreachable!(),
    }
}
