// The numbers of three lists, read from their bytes.
ghost use Rattle.std.specs.Prelude.{◌≡◌, ◌≤◌, length};

// C, D and T of n rows, at the fronts of arrays.
#[derive(Clone, Copy)]
pub struct Lists {
    pub n: usize,
    pub c: [u32; 24],
    pub d: [u32; 24],
    pub t: [u32; 24],
    ghost no_25th: { n ≤ 24 },
    ghost c_long: { length c ≡ 24 },
    ghost d_long: { length d ≡ 24 },
    ghost t_long: { length t ≡ 24 },
}
