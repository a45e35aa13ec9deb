//! Numbers that are drawn one after another.

ghost use Rattle.std.specs.Prelude.{◌≡◌, ◌<◌, ◌^◌};
ghost use Rattle.opfs_gen.specs.Drawing.{drawn, part, round_after, round_of};

/// What one round of an agent does: which of four things, with which of eight files, and with so many bytes, each the same, from a
/// position on.
#[derive(Clone, Copy, PartialEq, Eq)]
pub struct Round {
    pub act: u64,
    pub file: u64,
    pub byte: u8,
    pub count: u64,
    pub position: u64,
}

/// The next number.
fn next(x: u64) -> u64
    ensures { result ≡ drawn x }
{
    x.wrapping_mul(6_364_136_223_846_793_005)
        .wrapping_add(1_442_695_040_888_963_407)
}

/// What a number gives: its upper 31 bits.
#[tactic(auto, unfolding(crate::specs::Drawing::part))]
fn part_of(x: u64) -> u64
    ensures { result ≡ part x }
{
    x / 8_589_934_592
}

/// The round that is drawn from a number, and the number behind it.
pub fn draw_round(x: u64) -> (Round, u64)
    ensures round { result.0 ≡ round_of x }
    ensures after { result.1 ≡ round_after x }
{
    let first = next(x);
    let second = next(first);
    let act = part_of(first) % 4;
    let file = part_of(second) % 8;
    if act >= 2 {
        return (
            Round {
                act,
                file,
                byte: 0,
                count: 0,
                position: 0,
            },
            second,
        );
    }
    let third = next(second);
    let fourth = next(third);
    let fifth = next(fourth);
    (
        Round {
            act,
            file,
            byte: (part_of(third) % 256) as u8,
            count: part_of(fourth) % 4_096,
            position: part_of(fifth) % 61_440,
        },
        fifth,
    )
}
