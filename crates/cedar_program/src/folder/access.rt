//! The permissions of a file that takes the place of another one.
ghost use Rattle.std.specs.Prelude.{◌≡◌, ◌%◌, IsTrue, false};
ghost use Rattle.cedar_program.specs.Rights.{IsNarrowed, IsWithin, group_of, others_of, owner_of};

/// The permission bits of a file that takes the place of one with these, if its owner or its group may be another.
///
/// Only the new owner may do what the old file granted to anyone else; nobody else can do more with it than with the old file.
#[tactic(auto, using(crate::proofs::Rights::all_are_within, crate::proofs::Rights::part_is_within))]
pub fn narrowed_mode(mode: u32, keeps_owner: bool, keeps_group: bool) -> u32
    ensures same { IsTrue keeps_owner → IsTrue keeps_group → result ≡ mode }
    ensures within { IsWithin result mode }
    ensures narrowed { IsNarrowed mode keeps_owner keeps_group result }
{
    if keeps_owner && keeps_group {
        return mode;
    }
    mode & shared_bits(mode, keeps_owner, keeps_group)
}

// The bits that such a file may have: those that each class had to which its users may have belonged.
fn shared_bits(mode: u32, keeps_owner: bool, keeps_group: bool) -> u32
    ensures { IsNarrowed mode keeps_owner keeps_group result }
{
    let owner = mode / 0o100 % 0o10;
    let group = mode / 0o10 % 0o10;
    let others = mode % 0o10;
    let by_owner = all_or(keeps_owner, owner);
    let by_group = all_or(keeps_group, group);
    let by_others = all_or(keeps_group, others);
    let of_owner = all_or(keeps_owner, group | others);
    bits_of(of_owner, by_owner & by_others, by_owner & by_group)
}

// All bits of a class, or else these.
fn all_or(all: bool, bits: u32) -> u32
    ensures { all ≡ false → result ≡ bits }
{
    if all { 0o7 } else { bits }
}

// The bits of a mode: those of its owner, its group and the others. Bits beyond three of a class are left out.
fn bits_of(owner: u32, group: u32, others: u32) -> u32
    ensures owner { owner_of result ≡ owner % 8 }
    ensures group { group_of result ≡ group % 8 }
    ensures others { others_of result ≡ others % 8 }
{
    owner % 0o10 * 0o100 + group % 0o10 * 0o10 + others % 0o10
}
