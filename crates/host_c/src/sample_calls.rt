// One sample under its C name, exported.
ghost use Rattle.std.specs.Prelude.{◌≡◌, [], ◌∷◌};
ghost use Rattle.standard.specs.Calls.{sample_answer};

#[unsafe(no_mangle)]
pub extern "C" fn cironetop_restore_sample(
    depth: u32,
    row: u32,
    kind: i32,
    v0: i32,
    v1: i32,
    v2: i32,
    h0: i32,
    h1: i32,
    h2: i32,
    set: i32,
    w0: i32,
    w1: i32,
    window: &[u8],
) -> i32
    ensures { result ≡ sample_answer depth row (kind ∷ v0 ∷ v1 ∷ v2 ∷ h0 ∷ h1 ∷ h2 ∷ set ∷ w0 ∷ w1 ∷ []) window.now }
{
    host::sample_calls::cironetop_restore_sample(
        depth, row, kind, v0, v1, v2, h0, h1, h2, set, w0, w1, window,
    )
}
