// The numbers that bound recursions in the grammar.

ghost use Rattle.vx_laws_text.specs.Fuel.{QueriesHaveRoom, TypesHaveRoom, ItemsHaveRoom, NamesHaveRoom, ArgumentsHaveRoom, ChainsHaveRoom, StepsHaveRoom};

/// Room for as many parts, one in another or one behind another, as there are tokens is enough: more changes nothing.
pub fn fuel_is_enough()
    ensures queries { QueriesHaveRoom }
    ensures types { TypesHaveRoom }
    ensures items { ItemsHaveRoom }
    ensures names { NamesHaveRoom }
    ensures arguments { ArgumentsHaveRoom }
    ensures chains { ChainsHaveRoom }
    ensures steps { StepsHaveRoom }
{}
