// How many bytes each load and store moves: two tables, of two kinds. A width stays a number, since the bytes of an access are counted with it.
ghost use Rattle.std.specs.Prelude.{◌≡◌};
ghost use Rattle.model.specs.Access.{load_width, store_width};

use instructions::kind::{LoadKind, StoreKind};

pub fn load_width(k: LoadKind) -> u64
    ensures { result ≡ load_width k }
{
    match k {
        LoadKind::Lb | LoadKind::Lbu => 1,
        LoadKind::Lh | LoadKind::Lhu => 2,
        LoadKind::Lw | LoadKind::Lwu => 4,
        LoadKind::Ld => 8,
    }
}

pub fn store_width(k: StoreKind) -> u64
    ensures { result ≡ store_width k }
{
    match k {
        StoreKind::Sb => 1,
        StoreKind::Sh => 2,
        StoreKind::Sw => 4,
        StoreKind::Sd => 8,
    }
}
