//! The rows of a calibration text.
ghost use Rattle.std.specs.Prelude.{◌≡◌, ◌∷◌, [], option_and_then, codes, Some, None};
ghost use Rattle.toml.specs.Data.{get_member, as_integer};
ghost use Rattle.toml.specs.View.{table_view};
ghost use Rattle.wrp_caldb.specs.Calibration.{version_key, module_key, fibre_key, top_keys, tx_key, rx_key, transition_key, module_err_key, module_name_key, module_keys, tx_nm_key, rx_nm_key, first_wavelength, pair_keys, kappa_key, fibre_err_key, table_err_key, law_of, table_key, linear_keys, version_of};
ghost use Rattle.wrp_caldb.specs.declared.keys.Version.TheVariants.{One, Two};
ghost use Rattle.wrp_caldb.specs.Key.{name_key};

use crate::row::Row;
use crate::sort::number_at;
use crate::value::value_at;
use toml::Table;
use wrp_caldb::{Linear, Sort, Version};

/// `version`: 1 or 2, and 1 if it is missing.
pub fn version_row() -> Row
    ensures { result ≡ version_key }
{
    Row::with_default("version", 1, 2, 1)
}

/// `module`: an array of tables.
pub fn module_row() -> Row
    ensures { result ≡ module_key }
{
    Row::optional(
        "module",
        Sort::Tables {
            least: 0,
            greatest: None,
        },
    )
}

/// `fibre`: an array of tables.
pub fn fibre_row() -> Row
    ensures { result ≡ fibre_key }
{
    Row::optional(
        "fibre",
        Sort::Tables {
            least: 0,
            greatest: None,
        },
    )
}

/// The rows of the text itself.
pub fn top_rows() -> [Row; 3]
    ensures { result ≡ top_keys }
{
    [version_row(), module_row(), fibre_row()]
}

/// The version of a text: 2 if `version` is 2, else 1.
pub fn version_of(doc: &Table) -> Version
    ensures { result ≡ version_of (table_view doc.now) }
{
    match value_at(doc, "version") {
        Some(value) => match value.as_integer() {
            Some(2) => Version::Two,
            _ => Version::One,
        },
        None => Version::One,
    }
}

/// `tx`: a transmission delay in tau, 0 to `10^12`.
pub fn tx_row() -> Row
    ensures { result ≡ tx_key }
{
    Row::number("tx", 0, 1_000_000_000_000)
}

/// `rx`: a reception delay in tau, 0 to `10^12`.
pub fn rx_row() -> Row
    ensures { result ≡ rx_key }
{
    Row::number("rx", 0, 1_000_000_000_000)
}

/// `transition`: the tag at which a new period begins, 0 to 16383.
pub fn transition_row() -> Row
    ensures { result ≡ transition_key }
{
    Row::number("transition", 0, 16_383)
}

/// `err` of a module: in tau, 0 to `10^9`.
pub fn module_err_row() -> Row
    ensures { result ≡ module_err_key }
{
    Row::number("err", 0, 1_000_000_000)
}

/// `name` of a module.
pub fn module_name_row() -> Row
    ensures { result ≡ module_name_key }
{
    Row::required("name", Sort::ModuleName)
}

/// The rows of a module of version 1.
pub fn module_rows() -> [Row; 5]
    ensures { result ≡ module_keys One }
{
    [
        module_name_row(),
        tx_row(),
        rx_row(),
        transition_row(),
        module_err_row(),
    ]
}

/// The rows of a module of version 2.
pub fn paired_module_rows() -> [Row; 2]
    ensures { result ≡ module_keys Two }
{
    [
        module_name_row(),
        Row::required(
            "pair",
            Sort::Tables {
                least: 1,
                greatest: Some(16),
            },
        ),
    ]
}

/// `tx_nm`: the wavelength that a module sends, in nm.
pub fn tx_nm_row() -> Row
    ensures { result ≡ tx_nm_key }
{
    Row::required("tx_nm", Sort::Wavelength)
}

/// The row of the second wavelength, if the first one is this.
pub fn rx_nm_row(first: Option<i64>) -> Row
    ensures { result ≡ rx_nm_key first }
{
    Row::required("rx_nm", Sort::SecondWavelength { first })
}

/// The first wavelength of a pair.
pub fn first_wavelength(pair: &Table) -> Option<i64>
    ensures { result ≡ first_wavelength (table_view pair.now) }
{
    match value_at(pair, "tx_nm") {
        Some(value) => value.as_integer(),
        None => None,
    }
}

/// The rows of a pair.
pub fn pair_rows(pair: &Table) -> [Row; 6]
    ensures { result ≡ pair_keys (table_view pair.now) }
{
    [
        tx_nm_row(),
        rx_nm_row(first_wavelength(pair)),
        tx_row(),
        rx_row(),
        transition_row(),
        module_err_row(),
    ]
}

/// `name` of a fibre.
pub fn fibre_name_row() -> Row
    ensures { result ≡ name_key }
{
    Row::required("name", Sort::Name)
}

/// `kappa`: the asymmetry, from `-2^38` to `2^38`.
pub fn kappa_row() -> Row
    ensures { result ≡ kappa_key }
{
    Row::number("kappa", -274_877_906_944, 274_877_906_944)
}

/// `err` of a fibre: in tau, 1 to `10^9`.
pub fn fibre_err_row() -> Row
    ensures { result ≡ fibre_err_key }
{
    Row::number("err", 1, 1_000_000_000)
}

/// `table_err`: in tau, 0 to `10^9`, and 0 if it is missing.
pub fn table_err_row() -> Row
    ensures { result ≡ table_err_key }
{
    Row::with_default("table_err", 0, 1_000_000_000, 0)
}

/// The law that a fibre's points have to keep to; `None` if its numbers are out of their ranges.
pub fn law_of(fibre: &Table) -> Option<Linear>
    ensures { result ≡ law_of (table_view fibre.now) }
{
    match (
        number_at(fibre, &kappa_row()),
        number_at(fibre, &table_err_row()),
    ) {
        (Some(kappa), Some(err)) => Some(Linear {
            kappa,
            err: err.unsigned_abs(),
        }),
        _ => None,
    }
}

// `table`: the points of a fibre that has this law.
fn table_row(law: Option<Linear>) -> Row
    ensures { result ≡ table_key law }
{
    Row::optional("table", Sort::Points { law })
}

/// The rows of a fibre without a table. It has no points, so no law for them is worked out.
pub fn fibre_rows() -> [Row; 4]
    ensures { result ≡ name_key ∷ kappa_key ∷ fibre_err_key ∷ table_key None ∷ [] }
{
    [
        fibre_name_row(),
        kappa_row(),
        fibre_err_row(),
        table_row(None),
    ]
}

/// The rows of a fibre with a table.
pub fn tabled_fibre_rows(fibre: &Table) -> [Row; 5]
    ensures { result ≡ linear_keys (table_view fibre.now) (table_err_key ∷ []) }
{
    [
        fibre_name_row(),
        kappa_row(),
        fibre_err_row(),
        table_row(law_of(fibre)),
        table_err_row(),
    ]
}
