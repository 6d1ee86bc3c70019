// References to columns (Substrait `Expression.ReferenceSegment`).

/// An `Expression.ReferenceSegment`.
#[derive(Clone, Copy)]
pub struct ReferenceSegment {
    pub struct_field: Option<StructField>,
}

/// An `Expression.ReferenceSegment.StructField`. Of `child` only the presence is read.
#[derive(Clone, Copy)]
pub struct StructField {
    pub field: i32,
    pub child: bool,
}
