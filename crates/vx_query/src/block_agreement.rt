// The blocks of a request beside its zones.
ghost use Rattle.std.specs.Prelude.{◌≡◌, ℕ, List, true};
ghost use Rattle.vx_request.specs.Requests.{request_of};
ghost use Rattle.vx_query.specs.BlockAgreement.{agree};

/// The blocks of each scan that an input holds have the number, the columns, the rows and the types that its zones tell.
pub fn requested_blocks_agree()
    ensures { (input : List ℕ) → agree (request_of input) ≡ true }
{}
