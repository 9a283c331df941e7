ghost use Rattle.std.specs.Prelude.{◌≡◌, length, option_map};
ghost use Rattle.csv.specs.Records.{field_at};

/// Contains the fields of one record.
pub(crate) trait Record {
    ghost use Rattle.std.specs.Prelude.{ℕ, List};

    // the fields, in their order
    ghost fields: { Self → List (List ℕ) };

    /// Returns the number of fields.
    fn len(&self) -> usize
        ensures { result ≡ length (fields self.now) };

    /// Returns the field at an index.
    fn get(&self, i: usize) -> Option<&[u8]>
        ensures { option_map (λ s. s.now) result ≡ field_at (fields self.now) i };
}
