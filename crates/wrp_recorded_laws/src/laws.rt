//! Laws of the inputs that a world gives its nodes: functions whose contracts are the laws, and whose
//! bodies call the laws that they rest on.
ghost use Rattle.wrp_recorded_laws.specs.Recorded.{InputsAreRecorded};

use wrp_config::port_is_of_one_link;

/// In every run of an accepted network, with fewer than 2^32 events that lines say, the line of each
/// input that a node was given reads back as that input, and is no longer than a record line may be.
pub fn inputs_are_recorded()
    ensures { InputsAreRecorded }
{
    port_is_of_one_link();
}
