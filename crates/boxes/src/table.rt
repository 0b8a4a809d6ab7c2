// The table of a2, which a call makes once.
ghost use Rattle.std.specs.Prelude.{◌≡◌, ◌<◌, pos, length};
ghost use Rattle.laws.specs.Lists.{listing};
ghost use Rattle.standard.specs.SelfGuided.{a2_of};
ghost use Rattle.boxes.specs.Tables.{A2Table};

use crate::samples::signed;
use crate::shares::a2_of;

// a2 of every z up to 255.
pub fn table(tab: &mut [i32; 256])
    requires { length tab.old ≡ 256 }
    ensures { tab.new ≡ listing 256 (λ z. pos (a2_of z)) }
{
    for z in 0..256 {
        tab[z] = signed(a2_of(z as u32));
    }
}

// The table as the rows of a2 read it.
#[derive(Drop)]
pub struct A2 {
    pub tab: [i32; 256],
    pub ghost filled: { A2Table tab },
}

impl A2 {
    pub fn new() -> Self {
        let mut tab = [0i32; 256];
        table(&mut tab);
        A2 { tab }
    }

    pub fn at(&self, z: usize) -> i32
        requires { z < 256 }
        ensures { result ≡ pos (a2_of z) }
    {
        self.tab[z]
    }
}
