//! A law of audits: a function that does nothing, whose contract is the law.
ghost use Rattle.wrp_audit.specs.AuditLaws.{OneAudit};

use wrp_servo::told_last;

/// The same record lines are one run of their network: one text is written, and the same premise is the
/// first that an event breaks, whatever is noted apart from octets and measurements.
pub fn one_audit()
    ensures { OneAudit }
{
    told_last();
}
