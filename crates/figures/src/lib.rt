// Document 01's figures, proved together as a single table (specs/Figures.antt).
#![tactic(auto)]
