//! The numbers of `[network]`, under their keys and in the units of the file: times `.._ns` in ns, `epoch` in s,
//! `.._tau` and `phase_step` in tau, the others counts. `period_ps` is the period of the clock. Also, `nodes` and
//! `links` are how many there are, and `e_db`, `tx_max` and `rx_max` are the greatest of the listed modules, in tau.
use wrp_base::Clock;
use wrp_network::NetCfg;

// The times, and the counts of ticks.
fn time_of(cfg: &NetCfg, key: &str) -> Option<i64> {
    match key {
        "epoch" => Some(cfg.epoch),
        "dmin_ns" => Some(cfg.dmin_ns),
        "dmax_ns" => Some(cfg.dmax_ns),
        "life_ns" => Some(cfg.life_ns),
        "reach_ns" => Some(cfg.reach_ns),
        "quiet" => Some(cfg.quiet),
        "holdover" => Some(cfg.holdover),
        "wait" => Some(cfg.wait),
        "lock_wait" => Some(cfg.lock_wait),
        "holdoff" => Some(cfg.holdoff),
        "lease" => Some(cfg.lease),
        "age" => Some(cfg.age),
        "report" => Some(cfg.report),
        _ => None,
    }
}

// The numbers of messages.
fn message_number_of(cfg: &NetCfg, key: &str) -> Option<i64> {
    match key {
        "domain" => Some(cfg.domain),
        "retries" => Some(cfg.retries),
        "gap" => Some(cfg.gap),
        "announce" => Some(cfg.announce),
        "sync" => Some(cfg.sync),
        "delay" => Some(cfg.delay),
        "ring" => Some(cfg.ring),
        _ => None,
    }
}

// The numbers of the servo and its loop.
fn servo_number_of(cfg: &NetCfg, key: &str) -> Option<i64> {
    match key {
        "stable" => Some(cfg.stable),
        "lock_samples" => Some(cfg.lock_samples),
        "delock_samples" => Some(cfg.delock_samples),
        "track_tau" => Some(cfg.track_tau),
        "loop_tau" => Some(cfg.loop_tau),
        "phase_step" => Some(cfg.phase_step),
        "kp" => Some(cfg.kp),
        "ki" => Some(cfg.ki),
        "bias" => Some(cfg.bias),
        "threshold" => Some(cfg.threshold),
        _ => None,
    }
}

// What is no number of a key.
fn other_number_of(cfg: &NetCfg, key: &str) -> Option<i128> {
    match key {
        "period_ps" => Some(match cfg.clock {
            Clock::Mhz125 => 8_000,
            Clock::Mhz62 => 16_000,
        }),
        "nodes" => Some(cfg.nodes.len() as i128),
        "links" => Some(cfg.links.len() as i128),
        "e_db" => Some(i128::from(cfg.e_db)),
        "tx_max" => Some(i128::from(cfg.tx_max)),
        "rx_max" => Some(i128::from(cfg.rx_max)),
        _ => None,
    }
}

/// The number of a key.
pub fn number_of(cfg: &NetCfg, key: &str) -> Option<i128> {
    let found = time_of(cfg, key)
        .or(message_number_of(cfg, key))
        .or(servo_number_of(cfg, key));
    match found {
        Some(number) => Some(i128::from(number)),
        None => other_number_of(cfg, key),
    }
}
