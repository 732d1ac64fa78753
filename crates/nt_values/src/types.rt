//! Type strings and their data type numbers.

ghost use Rattle.std.specs.Prelude.{◌≡◌};
ghost use Rattle.nt_values.specs.Types.{number_of};

/// The data type number of a type string (NetworkTables 4.1, "Supported Data Types"): 5, which is that of `raw`,
/// for a type string that isn't listed there.
pub fn type_number(typ: &str) -> u8
    ensures { result ≡ number_of typ.now }
{
    match typ {
        "boolean" => 0,
        "double" => 1,
        "int" => 2,
        "float" => 3,
        "string" | "json" => 4,
        "boolean[]" => 16,
        "double[]" => 17,
        "int[]" => 18,
        "float[]" => 19,
        "string[]" => 20,
        _ => 5,
    }
}
