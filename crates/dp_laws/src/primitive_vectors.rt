ghost use Rattle.dp_laws.specs.PrimitiveVectorLaws.{PrimitiveVectorIsUnique, PrimitiveVectorsTellEquivalence};

/// Two classes with totals above 0 are equivalent exactly where their weights at all places have one
/// primitive vector. Each list of numbers has just one.
pub fn primitive_vectors_tell_equivalence()
    ensures tell { PrimitiveVectorsTellEquivalence }
    ensures unique { PrimitiveVectorIsUnique }
{}
