// The eps of each pass, by set.
ghost use Rattle.std.specs.Prelude.{◌≤◌};
ghost use Rattle.selfguided.specs.Parameters.{ParamsOf};

const SGR_PARAMS: [[Option<u32>; 2]; 16] = [
    [Some(12), Some(4)],
    [Some(15), Some(6)],
    [Some(18), Some(8)],
    [Some(21), Some(9)],
    [Some(24), Some(10)],
    [Some(29), Some(11)],
    [Some(36), Some(12)],
    [Some(45), Some(13)],
    [Some(56), Some(14)],
    [Some(68), Some(15)],
    [None, Some(5)],
    [None, Some(8)],
    [None, Some(11)],
    [None, Some(14)],
    [Some(30), None],
    [Some(75), None],
];

// Pass 0 has radius 2 and pass 1 radius 1, or radius 0 where there is no eps.
#[derive(Clone, Copy)]
pub struct Params {
    pub eps0: Option<u32>,
    pub eps1: Option<u32>,
}

pub fn params_of(set: u32) -> Params
    requires { set ≤ 15 }
    ensures { ParamsOf set result }
{
    let [eps0, eps1] = SGR_PARAMS[set as usize];
    Params { eps0, eps1 }
}
