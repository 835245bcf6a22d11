//! Laws of migration, for the layers that use it. Each function computes nothing.
ghost use Rattle.wrp_migrate.specs.Laws.{EachHasMigration, MigrationKeeps, OneMigration};
ghost use Rattle.wrp_migrate.specs.Sizes.{MigrationSize, SmallTextsFit};
ghost use Rattle.wrp_migrate.specs.WorkedSizes.{WorkedSizes};

/// What `migrate` writes is a calibration text of the same database: each name and each pair of
/// wavelengths finds in it what it found in the text that was migrated.
pub fn migration_keeps()
    ensures { MigrationKeeps }
{}

/// Each input has an answer: a status and what is written.
pub fn each_has_migration()
    ensures { EachHasMigration }
{}

/// An input has at most one answer.
pub fn one_migration()
    ensures { OneMigration }
{}

/// What `migrate` writes for a text of n octets has at most 35 octets, or (97 n + 144) / 40.
pub fn migration_size()
    ensures { MigrationSize }
{}

/// What `migrate` writes for a text of at most 108,099 octets has at most 262,144, and it migrates to itself.
pub fn small_texts_fit()
    ensures { SmallTextsFit }
{}

/// An empty text, and one of 48 octets, for which as many octets are written as there may be.
pub fn worked_sizes()
    ensures { WorkedSizes }
{}
