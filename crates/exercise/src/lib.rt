// Thursday's exercise, proved: one table and one statement (document 01, "Thursday's exercise"), and the idle versions of a desk that it
// stops. No code runs here; the table stands in specs/Thursday.antt.
#![tactic(auto)]
