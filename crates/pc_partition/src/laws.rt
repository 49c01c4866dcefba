//! Laws of partitions, for those who build on them. Each function does nothing: its contract is the law.

ghost use Rattle.std.specs.Prelude.{◌≡◌, ◌≤◌, ℕ, []};
ghost use Rattle.pc_partition.specs.declared.partition.SameVmctxPartition.{SameVmctxPartition};
ghost use Rattle.pc_partition.specs.declared.partition.SameVmctxPartition.TheVariants as variant;
ghost use Rattle.pc_partition.specs.Partition.{IsMeet, IsPartition, Refines, Together, extent, representative};

/// Refinement is an order in which the meet is what lies highest below both, `Top` above each partition, and `bottom`
/// below.
pub fn meets_are_greatest_lower_bounds()
    ensures left { (a b c : SameVmctxPartition) → IsMeet a b c → Refines c a }
    ensures right { (a b c : SameVmctxPartition) → IsMeet a b c → Refines c b }
    ensures greatest { (a b c d : SameVmctxPartition) → IsMeet a b c → Refines d a → Refines d b → Refines d c }
    ensures top { (a : SameVmctxPartition) → Refines a variant.Top }
    ensures bottom { (a : SameVmctxPartition) → Refines (variant.Known []) a }
{}

/// The meet is one value, whatever the order and the grouping; of a partition with itself it is that partition. `Top`
/// is the identity, and `bottom` absorbs.
pub fn meets_are_a_semilattice()
    ensures commutative { (a b c d : SameVmctxPartition) → IsMeet a b c → IsMeet b a d → c ≡ d }
    ensures associative { (a b c ab bc d e : SameVmctxPartition) → IsMeet a b ab → IsMeet ab c d → IsMeet b c bc
        → IsMeet a bc e → d ≡ e }
    ensures idempotent { (a c : SameVmctxPartition) → IsPartition a → IsMeet a a c → c ≡ a }
    ensures top { (a c : SameVmctxPartition) → IsPartition a → IsMeet variant.Top a c → c ≡ a }
    ensures bottom { (a c : SameVmctxPartition) → IsMeet (variant.Known []) a c → c ≡ variant.Known [] }
{}

/// A partition is one value, told by what it puts together and by how many numbers it tells of.
pub fn partitions_are_told()
    ensures { (a b : SameVmctxPartition) → IsPartition a → IsPartition b → extent a ≡ extent b → Refines a b
        → Refines b a → a ≡ b }
{}

/// A representative is together with its number, and no lower number is.
pub fn representatives_are_least()
    ensures together { (a : SameVmctxPartition) (f : ℕ) → IsPartition a → Together a f (representative a f) }
    ensures least { (a : SameVmctxPartition) (f g : ℕ) → IsPartition a → Together a f g → representative a f ≤ g }
{}
