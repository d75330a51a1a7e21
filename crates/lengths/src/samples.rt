//! Lengths and glue that are shown of the definitions, by computing them.
ghost use Rattle.lengths.specs.Samples.{samples, Each};

// Every row of the table stands.
pub fn samples_stand()
    ensures rows { Each samples }
{}
